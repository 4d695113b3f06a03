// Heads of requests, and what they ask.
mod heads;
mod limits;
