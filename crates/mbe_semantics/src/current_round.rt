// The current round of a repetition while its template is transcribed.
/// The current round of a repetition, counted from 0, and the number of rounds that it has.
#[derive(Clone, Copy, Debug)]
pub struct CurrentRound {
    pub index: usize,
    pub rounds: usize,
}
