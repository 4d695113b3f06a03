use task_words::{Asker, GetCommand};

/// What is asked of an object, by whom and in which zone.
#[derive(Drop)]
pub struct GetRequest {
    pub zone: u8,
    pub asker: Asker,
    pub get: GetCommand,
}
