// The counters that the program `frames` keeps between two lines beside its lent buffers; specs/Memory.antt
// defines the effect of each frame on both.
#![tactic(auto)]

// The counters kept between two lines.
#[derive(Clone, Copy)]
pub struct Counters {
    // The size of the open list.
    pub opened: open_list::OpenList,
    // The size of the leg store.
    pub legs: close_leg::LegTotals,
    // The number of 05 frames answered 00.
    pub outs: usize,
}
