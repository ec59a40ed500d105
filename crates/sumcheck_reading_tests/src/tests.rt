//! What reads a job: room for it, the forms of JSON, and its members.
mod forms;
mod members;
mod memory;
