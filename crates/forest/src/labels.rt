// Labels of the 128 devices: those that are linked have the same.
ghost use Rattle.std.specs.Prelude.{◌≡◌};
ghost use Rattle.cuts.specs.Links.{label};
ghost use Rattle.forest.specs.Labels.{Merged};

use crate::ends::Ends;

/// Gives every device with the label of the one end the label of the other.
pub(crate) fn merge(labels: &mut [u8; 128], ends: Ends)
    ensures { Merged labels.old (label labels.old ends.a) (label labels.old ends.b) labels.new }
{
    let old = labels[ends.a as usize];
    let new = labels[ends.b as usize];
    for label in labels.iter_mut() {
        if *label == old {
            *label = new;
        }
    }
}
