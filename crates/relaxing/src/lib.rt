// The constraints on N as a lent list, and their relaxing (docs/FORMATS.md,
// "The plan that is returned").
#![tactic(auto)]

ghost use Rattle.std.specs.Prelude.{◌≡◌, map, ◌≤◌, ◌<◌, length};
ghost use Rattle.model.specs.ConstraintLaws.{Within};
ghost use Rattle.model.specs.Counting.{Each};
ghost use Rattle.model.specs.Relaxing.{settled_within};
ghost use Rattle.constraints.specs.Entries.{meaning};
ghost use Rattle.constraints.specs.Links.{entries_of};
ghost use Rattle.relaxing.specs.Steps.{outcome, lowered, settled_as};

use constraints::{BIAS, Constraint, Links};

// The constraints have a loop of negative sum, so that no distances obey them all.
#[derive(Clone, Copy, Debug, PartialEq, Eq, Drop)]
pub struct NegativeLoop;

// Stores the constraints of a site, each at its place.
fn fill(list: &mut [Constraint], links: &Links)
    requires { length list.old ≡ length (entries_of links.now) }
    ensures { list.new ≡ entries_of links.now }
{
    for (place, entry) in list.iter_mut().enumerate() {
        *entry = links.constraint_at(place);
    }
}

// Lowers the distance of `to` as far as the constraint asks, and gives whether that changed it. One
// that would fall below 0 shows a loop of negative sum.
fn lower(constraint: &Constraint, distances: &mut [u8]) -> Result<bool, NegativeLoop>
    requires { (constraint.now.from < length distances.old) × (constraint.now.to < length distances.old) }
    ensures { (result ≡ outcome constraint.now distances.old) × (distances.new ≡ lowered constraint.now distances.old) }
{
    let from = constraint.from as usize;
    let to = constraint.to as usize;
    let reach = usize::from(distances[from]) + constraint.credit as usize;
    let held = usize::from(distances[to]) + BIAS as usize;
    if held <= reach {
        return Ok(false);
    }
    if reach < BIAS as usize {
        return Err(NegativeLoop);
    }
    distances[to] = (reach - BIAS as usize) as u8;
    Ok(true)
}

// Relaxes the distances in place, round after round, until a round changes nothing. A distance
// that would fall below 0, or as many rounds as there are distances without such a one, is a loop
// of negative sum.
fn relax(list: &[Constraint], distances: &mut [u8]) -> Result<(), NegativeLoop>
    requires { Each (Within (length distances.old)) (map meaning list.now) }
    ensures { (settled_within (length distances.old) (map meaning list.now) distances.old ≡ settled_as result distances.new) × (length distances.new ≡ length distances.old) }
{
    'rounds: for _ in 0..distances.len() {
        let mut changed = false;
        for constraint in list {
            changed |= lower(constraint, distances)?;
        }
        if !changed {
            return Ok(());
        }
    }
    Err(NegativeLoop)
}

// Relaxes the distances over the constraints of a site: the list is made, filled and relaxed here,
// and no other function needs one.
#[tactic(auto, using(constraints::specs::Links::entries_length))]
pub fn settle(links: &Links, distances: &mut [u8]) -> Result<(), NegativeLoop>
    requires few_flows { length links.now.sources.now ≤ 128 }
    requires each { Each (Within (length distances.old)) (map meaning (entries_of links.now)) }
    ensures { (settled_within (length distances.old) (map meaning (entries_of links.now)) distances.old ≡ settled_as result distances.new) × (length distances.new ≡ length distances.old) }
{
    let count = links.constraint_count();
    let mut list = [Constraint {
        from: 0,
        to: 0,
        credit: 0,
    }; 254];
    fill(&mut list[..count], links);
    relax(&list[..count], distances)
}
