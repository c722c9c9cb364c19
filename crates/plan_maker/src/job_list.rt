// The jobs that were made so far.
use bulk_model::Jobs;

/// The jobs that were made so far, and how many bytes of files they have.
#[derive(Drop)]
pub struct JobList {
    /// One job for each node so far.
    pub jobs: Jobs,
    /// How many bytes were counted.
    pub bytes: u64,
}
