/// How a run ended. The program's exit statuses are 0 to 5 in this order: Done 0, Refused 1, Usage 2,
/// ReadFault 3, WriteFault 4 and NoMemory 5.
#[derive(Clone, Copy, Debug, PartialEq, Eq)]
pub enum Status {
    Done,
    Refused,
    Usage,
    ReadFault,
    WriteFault,
    NoMemory,
}
