use list_words::ListCommand;
use task_words::Asker;

/// A request for a listing: in which zone, by whom, and what is asked.
#[derive(Drop)]
pub struct ListRequest {
    pub zone: u8,
    pub asker: Asker,
    pub command: ListCommand,
}
