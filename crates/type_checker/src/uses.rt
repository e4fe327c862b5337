ghost use Rattle.std.specs.Prelude.{◌≡◌};
ghost use Rattle.std.specs.Option.{option_copied};
ghost use Rattle.hal_base.specs.Shapes.{nth};
ghost use Rattle.type_checker.specs.Uses as spec;

use hal_base::{CopyIn, Items, Memory};
use std::alloc::Global;

/// What a place of a program uses: a predefined function, the default, or the function of this number in
/// the program's text, from 0.
#[derive(Clone, Copy)]
pub enum Use {
    Same,
    Least,
    Every,
    Hop,
    Default,
    Function(u32),
}

impl CopyIn for Use {
    fn copy(&self, _alloc: Global) -> Result<Use, Memory> {
        Ok(*self)
    }
}

/// The map of each source of a step.
pub type UseMaps = Items<Use>;

/// The functions of a step.
#[derive(Drop)]
pub struct UseStep {
    pub maps: UseMaps,
    pub reduce: Use,
    pub partition: Use,
}

impl CopyIn for UseStep {
    fn copy(&self, alloc: Global) -> Result<UseStep, Memory> {
        let maps = self.maps.copy(alloc)?;
        Ok(UseStep {
            maps,
            reduce: self.reduce,
            partition: self.partition,
        })
    }
}

/// The functions of each step.
pub type UseSteps = Items<UseStep>;

/// The functions of a program. With `Default` the distance is 1 where two lists differ, else 0.
#[derive(Drop)]
pub struct Uses {
    pub steps: UseSteps,
    pub distance: Use,
}

impl Uses {
    /// The map of a source of a step. Steps and sources count from 1.
    pub fn map_at(&self, step: u32, source: u32) -> Option<Use>
        ensures { result ≡ spec.map_at self.now step source }
    {
        let step = self.step(step)?;
        use_at(step.maps.as_slice(), source)
    }

    /// The reduce of a step.
    pub fn reduce_at(&self, step: u32) -> Option<Use>
        ensures { result ≡ spec.reduce_at self.now step }
    {
        let step = self.step(step)?;
        Some(step.reduce)
    }

    /// The partition of a step.
    pub fn partition_at(&self, step: u32) -> Option<Use>
        ensures { result ≡ spec.partition_at self.now step }
    {
        let step = self.step(step)?;
        Some(step.partition)
    }

    /// The functions of a step.
    fn step(&self, step: u32) -> Option<&UseStep>
        ensures { option_copied result ≡ nth self.now.steps step }
    {
        match step.checked_sub(1) {
            Some(at) => self.steps.get(at as usize),
            None => None,
        }
    }
}

/// The use of a source.
fn use_at(uses: &[Use], source: u32) -> Option<Use>
    ensures { result ≡ nth uses.now source }
{
    match source.checked_sub(1) {
        Some(at) => uses.get(at as usize).copied(),
        None => None,
    }
}
