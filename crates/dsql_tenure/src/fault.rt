use thiserror::Error;

/// Where a journal stands. No Connect was heard yet, the last tenure can or can't have a further entry, or Shut was
/// heard.
#[derive(Clone, Copy, Debug)]
pub enum Phase {
    Before,
    Between,
    Inside,
    After,
}

/// Why the judge didn't take an entry. Nothing changed.
#[derive(Clone, Copy, Debug, Error)]
pub enum JudgeFault {
    /// No whole journal goes on like this. The phase and the last tenure's number, or 0 if there is none, say
    /// where the journal stood.
    #[error("a stray entry behind tenure {tenure}")]
    Stray { phase: Phase, tenure: u32 },
    #[error("out of memory")]
    Memory,
}
