ghost use Rattle.partition_shuffle.specs.SpillLaws.{SectionIsThePart};

/// What is read of the spill text of some parts is the part of that number.
pub fn a_section_is_the_part()
    ensures { SectionIsThePart }
{}
