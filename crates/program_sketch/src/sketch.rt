use function_language::{Row, Tree};
use hal_base::Text;
use program_tokens::{Ident, Number};
use sqlite_items::Items;

/// A table of a program, and the file that it is read from. The `line` is that of the file's name.
#[derive(Drop)]
pub struct TableSketch {
    pub name: Ident,
    pub file: Text,
    pub line: u64,
    pub row: Row,
}

/// A table that a step reads, perhaps in one round alone, and the map for it.
#[derive(Drop)]
pub struct InputSketch {
    pub table: Ident,
    pub only: Option<Number>,
    pub map: Ident,
}

pub type InputSketches = Items<InputSketch>;

/// A step. The `line` is that of the word `step`, and `map` is that of the state or of the step before.
#[derive(Drop)]
pub struct StepSketch {
    pub line: u64,
    pub map: Ident,
    pub inputs: InputSketches,
    pub reduce: Ident,
    pub partition: Option<Ident>,
}

/// When a program stops, but for its limit of rounds.
#[derive(Drop)]
pub enum StopSketch {
    Exact,
    Below { threshold: Number, by: Ident },
}

/// The caches that a program asks for.
#[derive(Clone, Copy, Drop)]
pub struct Asked {
    pub reducer_input: bool,
    pub reducer_output: bool,
    pub mapper_input: bool,
}

pub type TableSketches = Items<TableSketch>;

pub type StepSketches = Items<StepSketch>;

/// A program as it is written. Each name, number and arrow has its line. docs/LANGUAGE.md, "Programs".
#[derive(Drop)]
pub struct Sketch {
    pub name: Ident,
    pub parts: Number,
    pub rounds: Number,
    pub stop: StopSketch,
    pub asked: Asked,
    pub tables: TableSketches,
    pub functions: Tree,
    pub start: Ident,
    pub steps: StepSketches,
}
