// What a field is refused for: 1, 3 and 4 of document 01's table, at one field in this order.
#[derive(Clone, Copy, Debug, PartialEq, Eq)]
pub enum Fault {
    BadField,
    PastLimit,
    BadText,
}
