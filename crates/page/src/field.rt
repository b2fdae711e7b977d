// What a reader answers: what stands at a position and the position after it, or what the field is refused for.
use crate::fault::Fault;

pub type Field<T> = Result<(T, usize), Fault>;
