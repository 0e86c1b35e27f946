// How far a sheet has come.
#[derive(Clone, Copy, PartialEq, Eq, Debug)]
pub enum Phase {
    // no sheet has been made here yet
    Unmade,
    // pipes can be drawn
    Drawing,
    // the sheet has been started: nodes can be eliminated
    Closing,
}
