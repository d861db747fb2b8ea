// A component: an accepted table, with an index of what follows from its rows.
#![tactic(auto)]

ghost use Rattle.std.proofs.Props.{props};
ghost use Rattle.prepared.specs.Prepared.{Prepared};

// The rows of an accepted table, and the index that was made of them.
#[derive(Clone, Copy)]
pub struct Component {
    pub rows: [u32; table::SLOTS],
    pub index: [u32; crate::INDEX],
    pub ghost prepared: { Prepared rows index } by { Prim.hlevel props },
}
