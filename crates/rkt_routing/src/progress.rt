/// What a poll of something that is polled by value comes to: it goes on with the next poll, or is over.
#[derive(Drop)]
pub enum Progress<M, R> {
    Pending(M),
    Ready(R),
}
