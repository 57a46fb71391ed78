use linking::ClassList;
use program::Program;

/// Classes, and the program that they make.
#[derive(Debug, Drop)]
pub struct Linked {
    pub classes: ClassList,
    pub program: Program,
}
