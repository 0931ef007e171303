//! Makes a call again where it is refused, once it is seen that nothing changed.
/// Makes a call that takes memory, and gives its answer. Where it is refused, this sees that nothing changed, and makes it
/// again. The function that has this owns little, since the call is written out twice.
macro_rules! again {
    ($call:expr) => {
        match $call {
            Ok(done) => Ok(done),
            Err(_) => match $call {
                Ok(done) => Ok(done),
                Err(_) => Err(Failed::Twice),
            },
        }
    };
    ($call:expr, $unchanged:expr) => {
        match $call {
            Ok(done) => Ok(done),
            Err(_) => {
                let unchanged: bool = $unchanged;
                if !unchanged {
                    return Err(Failed::Changed);
                }
                match $call {
                    Ok(done) => Ok(done),
                    Err(_) => Err(Failed::Twice),
                }
            }
        }
    };
}

pub(crate) use again;
