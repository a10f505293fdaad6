// Why a sink takes no byte. Code above hands it on as it is.
#[derive(Clone, Copy, PartialEq, Eq, Debug)]
pub enum SinkFault {
    Full,
}
