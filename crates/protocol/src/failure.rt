use line::StoreFault;
use page_maker::PageFault;
use std::alloc::AllocError;
use std::io;
use thiserror::Error;

// Why there are no pages, or not all.
#[derive(Debug, Drop, Error)]
pub(super) enum Failure {
    // The log is refused: by the store, or by the engine and the page maker.
    #[error("refused {0}")]
    Store(#[from] StoreFault),
    #[error("refused {0}")]
    Page(#[from] PageFault),
    #[error("{0}")]
    Io(#[from] io::Error),
    #[error("{0}")]
    Memory(#[from] AllocError),
    #[error("{0}")]
    Other(#[from] anyhow::Error),
}

impl Failure {
    // A refusal is told to standard output, where the pages go, and what kept it from being told there to standard error; anything else to
    // standard error alone, once.
    pub(super) fn tell(&self, rt: &HostRuntime) {
        match self {
            Failure::Store(_) | Failure::Page(_) => {
                if let Err(error) = println!(rt; "{self}") {
                    let _ = eprintln!(rt; "protocol: {error}");
                }
            }
            _ => {
                let _ = eprintln!(rt; "protocol: {self}");
            }
        }
    }
}
