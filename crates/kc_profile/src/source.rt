/// An instruction: the line of the source that it comes from, its address, and whether it is a conditional jump.
#[derive(Clone, Copy)]
pub struct Instruction {
    pub line: u32,
    pub addr: u16,
    pub is_branch: bool,
}

/// A source by the name of its file, and its instructions by rising line, those of a line in the order of its statements.
#[derive(Drop)]
pub struct Source<'a> {
    pub name: &'a str,
    pub instructions: Vec<Instruction>,
}
