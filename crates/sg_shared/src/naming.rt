// Which play is shared.
use sg_log::WorldNames;
use std::marker::Brand;

/// Which play is shared: its script. Its tables, how many clients it has and its plan of stops are those of its world. Each run picks its
/// own.
pub trait Naming: WorldNames {
    ghost use Rattle.sg_sim.specs.sg_script.declared.script.Script.{Script};

    ghost script: { Script };
}

impl Naming for Brand {
    ghost use Rattle.sg_shared.specs.Inside.Unpicked.{no_script};

    ghost script = { no_script };
}
