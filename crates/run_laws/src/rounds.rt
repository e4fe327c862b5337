ghost use Rattle.run_laws.specs.Rounds.{NamesAreOfTheShape, TasksAreOfTheShape};

/// A name of the rounds until one is of the shape, and of no later round.
pub fn names_are_of_the_shape()
    ensures { NamesAreOfTheShape }
{}

/// The tasks of the rounds until one are the tasks of the shape that are of no later round.
pub fn tasks_are_of_the_shape()
    ensures { TasksAreOfTheShape }
{}
