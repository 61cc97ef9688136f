//! What a run of a desk has around it.

/// What a run of a desk has around it: the standard input, the standard output, the net, the desk's folder, the papers
/// that its words name, and a clock.
#[derive(Drop)]
pub struct Around<S, K, N, F, P, C> {
    pub input: S,
    pub out: K,
    pub net: N,
    pub folder: F,
    pub papers: P,
    pub clock: C,
}
