// What is printed of how a call ended. A type for each, since the same Result is printed in three ways.
use std::fmt;
use storage::types::CallError;

/// A call that answers nothing but whether it failed.
#[derive(Clone, Copy, Debug)]
pub struct Ended(pub Result<(), CallError>);

impl fmt::Display for Ended {
    fn fmt<W: fmt::Write>(&self, f: &mut fmt::Formatter<W>) -> fmt::Result {
        match self.0 {
            Ok(()) => write!(f, "ok"),
            Err(CallError::Failed) => write!(f, "fail"),
            Err(CallError::Refused) => write!(f, "refused 9"),
        }
    }
}

/// A call that moves bytes: how many. One that failed answers for none.
#[derive(Clone, Copy, Debug)]
pub struct Moved(pub Result<usize, CallError>);

impl fmt::Display for Moved {
    fn fmt<W: fmt::Write>(&self, f: &mut fmt::Formatter<W>) -> fmt::Result {
        match self.0 {
            Ok(count) => write!(f, "{count}"),
            Err(CallError::Failed) => write!(f, "0"),
            Err(CallError::Refused) => write!(f, "refused 9"),
        }
    }
}

/// A write to an engine, by its status.
#[derive(Clone, Copy, Debug)]
pub struct Status(pub Result<(), CallError>);

impl fmt::Display for Status {
    fn fmt<W: fmt::Write>(&self, f: &mut fmt::Formatter<W>) -> fmt::Result {
        match self.0 {
            Ok(()) => write!(f, "0"),
            Err(CallError::Failed) => write!(f, "1"),
            Err(CallError::Refused) => write!(f, "refused 9"),
        }
    }
}
