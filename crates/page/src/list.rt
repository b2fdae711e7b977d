// Lists stay on the page: code keeps where they lie, and reads them again from there.

// Where the first element starts, and how many there are.
#[derive(Clone, Copy)]
pub struct List {
    pub start: usize,
    pub count: usize,
}
