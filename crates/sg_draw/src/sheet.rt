// Where everything stands in a picture, in units of a screen's points.
use crate::rows::Row;
use crate::visible::letters;

// The middle of the first lane.
const LEFT: u64 = 34;
// From a lane's middle to the next.
const LANE: u64 = 40;
// How much further the service's lane is from the last client's.
const APART: u64 = 20;
// From the service's lane to the labels.
const GAP: u64 = 44;
// The width of a letter.
const LETTER: u64 = 8;
// The empty edge at the right and at the bottom.
const EDGE: u64 = 24;
// The middle of the title's row, and of the lane heads' row.
const TITLE: u64 = 24;

const HEADS: u64 = 52;
// The middle of the first row of the run.
const FIRST: u64 = 80;
// From a row's middle to the next.
const ROW: u64 = 20;
// How far below a row's middle its text stands.
const BASE: u64 = 4;
// How far from a mark's middle a bar may come.
const MARK: u64 = 7;
// How far the lines of lanes reach past the rows.
const REACH: u64 = 10;
// From a sample in the legend to its words.
const SAMPLE: u64 = 24;
// The rows of the legend, with an empty one before them.
const LEGEND: u64 = 7;
// The letters of its longest words.
const WORDS: u64 = 54;
// How far the lines of boots and stops reach past the lanes.
const OVER: u64 = 18;

/// The size of a picture: its lanes, its rows and the letters of its longest label.
#[derive(Debug, Clone, Copy, PartialEq, Eq)]
pub(crate) struct Sheet {
    pub lanes: u64,
    pub rows: u64,
    pub letters: u64,
}

impl Sheet {
    /// The sheet of so many clients' lanes and these rows.
    pub(crate) fn new(lanes: usize, rows: &[Row]) -> Sheet {
        let mut most = WORDS;
        for row in rows {
            most = most.max(letters(row.label.as_slice()));
        }
        Sheet {
            lanes: lanes as u64,
            rows: rows.len() as u64,
            letters: most,
        }
    }

    /// The middle of a client's lane.
    pub(crate) fn lane(&self, at: usize) -> u64 {
        LEFT.saturating_add(LANE.saturating_mul(at as u64))
    }

    /// The middle of the service's lane.
    pub(crate) fn service(&self) -> u64 {
        LEFT.saturating_add(LANE.saturating_mul(self.lanes))
            .saturating_add(APART)
    }

    /// Where the lines of boots and stops begin.
    pub(crate) fn left(&self) -> u64 {
        LEFT - OVER
    }

    /// Where the lines of boots and stops end.
    pub(crate) fn right(&self) -> u64 {
        self.service().saturating_add(OVER)
    }

    /// Where labels begin.
    pub(crate) fn labels(&self) -> u64 {
        self.service().saturating_add(GAP)
    }

    /// The middle of a row of the run, counted from 0.
    pub(crate) fn row(&self, at: usize) -> u64 {
        FIRST.saturating_add(ROW.saturating_mul(at as u64))
    }

    /// The middle of the title's row.
    pub(crate) fn title(&self) -> u64 {
        TITLE
    }

    /// The middle of the row of the lanes' heads.
    pub(crate) fn heads(&self) -> u64 {
        HEADS
    }

    /// Where the lines of lanes begin.
    pub(crate) fn top(&self) -> u64 {
        FIRST - REACH
    }

    /// Where the lines of lanes end: below the last row.
    pub(crate) fn bottom(&self) -> u64 {
        FIRST
            .saturating_add(ROW.saturating_mul(self.rows))
            .saturating_sub(REACH)
    }

    /// The middle of a row of the legend, counted from 0.
    pub(crate) fn legend(&self, at: usize) -> u64 {
        self.bottom()
            .saturating_add(ROW.saturating_mul(at as u64))
            .saturating_add(ROW)
            .saturating_add(REACH)
    }

    /// Where a sample in the legend begins.
    pub(crate) fn sample(&self) -> u64 {
        LEFT
    }

    /// Where a sample in the legend ends.
    pub(crate) fn sample_end(&self) -> u64 {
        LEFT + LANE
    }

    /// Where the words of the legend begin.
    pub(crate) fn words(&self) -> u64 {
        LEFT + LANE + SAMPLE
    }

    /// The width of the whole picture.
    pub(crate) fn width(&self) -> u64 {
        self.labels()
            .max(self.words())
            .saturating_add(LETTER.saturating_mul(self.letters))
            .saturating_add(EDGE)
    }

    /// The height of the whole picture.
    pub(crate) fn height(&self) -> u64 {
        self.bottom()
            .saturating_add(ROW.saturating_mul(LEGEND))
            .saturating_add(EDGE)
    }
}

/// Where a text in a row stands, by the row's middle.
pub(crate) fn base(middle: u64) -> u64 {
    middle.saturating_add(BASE)
}

/// Where a bar begins below a mark.
pub(crate) fn below(middle: u64) -> u64 {
    middle.saturating_add(MARK)
}

/// Where a bar ends above a mark.
pub(crate) fn above(middle: u64) -> u64 {
    middle.saturating_sub(MARK)
}
