/// How the program ends. The number is its exit status.
#[derive(Clone, Copy)]
pub enum Status {
    /// All was read to its end, answered and written, and nothing was refused.
    Done = 0,
    /// All was read to its end, answered and written, and something was refused.
    Refused = 1,
    /// The words are of none of the forms. Nothing was read or written.
    Usage = 2,
    /// A read failed. Nothing was written.
    ReadFault = 3,
    /// A write failed. A front of the replies of `run`, or of another word's answer, was written.
    WriteFault = 4,
    /// Memory ran out. A front of the replies of `run` was written, and nothing of another word's answer.
    NoMemory = 5,
    /// The input is longer than 16,777,216 bytes. Nothing was written.
    TooLong = 6,
}
