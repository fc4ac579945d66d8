// The fixed parts of a document. Letters of classes: n lanes, b boots, c calls, k walks, f loads, w waiting, s stops; t the title, h the
// lanes' heads, l labels. The colours are told apart by those who don't tell red from green, and each kind of mark has a shape.

/// What the document is of, for those who have it read to them.
pub(crate) const ABOUT: &[u8] =
    b"<title>A run of a service</title>\n<desc>A row for each boot, each item of the trace and each stop, from top to bottom, with a lane for each client and one for the service.</desc>\n";

/// How texts look.
pub(crate) const HANDS: &[u8] =
    b"<style>text{font:13px ui-monospace,Menlo,Consolas,'DejaVu Sans Mono',monospace;fill:#1a1a1a;white-space:pre}.t{font-size:15px;font-weight:bold}.h{font-weight:bold;text-anchor:middle}</style>\n";

/// How lines look.
pub(crate) const LINES: &[u8] =
    b"<style>path{fill:none;stroke-width:1.5}.n{stroke:#d0d0d0;stroke-width:1}.b{stroke:#e6e6e6;stroke-width:18}.s{stroke:#000;stroke-width:4}.w{stroke:#CC79A7;stroke-width:6;stroke-opacity:.7}.c{stroke:#0072B2;marker-start:url(#c);marker-end:url(#c)}.k{stroke:#D55E00;marker-start:url(#k);marker-end:url(#k)}.f{stroke:#E69F00;marker-start:url(#f);marker-end:url(#f)}</style>\n";

/// The marks at the ends of lines: a circle, a square, and a diamond.
pub(crate) const MARKERS: &[u8] =
    b"<defs><marker id='c' viewBox='-6 -6 12 12' markerWidth='12' markerHeight='12' markerUnits='userSpaceOnUse'><circle r='5' fill='#0072B2'/></marker><marker id='k' viewBox='-6 -6 12 12' markerWidth='12' markerHeight='12' markerUnits='userSpaceOnUse'><path d='M-4 -4H4V4H-4Z' style='fill:#D55E00;stroke:none'/></marker><marker id='f' viewBox='-6 -6 12 12' markerWidth='12' markerHeight='12' markerUnits='userSpaceOnUse'><path d='M0 -6L6 0L0 6L-6 0Z' style='fill:#E69F00;stroke:none'/></marker></defs>\n";

/// The ground.
pub(crate) const GROUND: &[u8] = b"<rect width='100%' height='100%' fill='#fff'/>\n";
