// What a caller lends to every call of the engine and a call may change. The request room stays apart, since
// a command's data are a part of it.

/// The rooms of a call: the reply, the chip's bytes, the storage's buffer, and scratch.
#[derive(Drop)]
pub struct Rooms<'a> {
    pub reply: &'a mut [u8],
    pub chip: &'a mut [u8],
    pub buffer: &'a mut [u8],
    pub scratch: &'a mut [u8],
}
