//! Metadata with what was sent of it.
ghost use Rattle.std.specs.Prelude.{◌≡◌, ◌++◌, ◌∷◌, [], IfOk, OnOk};
ghost use Rattle.task_container.specs.Rows.{merged, lower, higher, given};

use rgw_types::{Pairs, Text};
use std::alloc::{AllocError, Global};

/// The kept pairs with those that were sent. Each sent pair sets its name, or with an empty value removes it.
pub fn merge(alloc: Global, kept: &Pairs, sent: &Pairs) -> Result<Pairs, AllocError>
    ensures { IfOk result (λ pairs. pairs ≡ merged kept.now sent.now) }
{
    let mut items = Vec::new(alloc);
    push_merged(&mut items, kept.as_slice(), sent.as_slice())?;
    Ok(Pairs::from_vec(items).unwrap())
}

/// Adds the merged pairs. After an error nothing is said of the vector.
fn push_merged(
    items: &mut Vec<(Text, Text)>,
    kept: &[(Text, Text)],
    sent: &[(Text, Text)],
) -> Result<(), AllocError>
    ensures { OnOk result (items.new.items ≡ items.old.items ++ merged kept.now sent.now) }
{
    let mut left = kept;
    let mut rest = sent;
    while let [pair, ..] = rest {
        left = push_lower(items, left, &pair.0)?;
        push_given(items, pair)?;
        rest = &rest[1..];
    }
    push_all(items, left)
}

/// Adds the first pairs, as far as their names are lower, and gives back those of higher names.
fn push_lower<'a>(
    items: &mut Vec<(Text, Text)>,
    kept: &'a [(Text, Text)],
    name: &Text,
) -> Result<&'a [(Text, Text)], AllocError>
    ensures added { OnOk result (items.new.items ≡ items.old.items ++ lower name.now kept.now) }
    ensures left { IfOk result (λ left. left.now ≡ higher name.now kept.now) }
{
    let mut rest = kept;
    while let [pair, ..] = rest {
        if pair.0 < *name {
            push_copy(items, pair)?;
            rest = &rest[1..];
        } else if pair.0 == *name {
            return Ok(&rest[1..]);
        } else {
            return Ok(rest);
        }
    }
    Ok(rest)
}

/// Adds the sent pair where its value has a byte.
fn push_given(items: &mut Vec<(Text, Text)>, pair: &(Text, Text)) -> Result<(), AllocError>
    ensures { OnOk result (items.new.items ≡ items.old.items ++ given pair.now) }
{
    if pair.1.is_empty() {
        Ok(())
    } else {
        push_copy(items, pair)
    }
}

fn push_all(items: &mut Vec<(Text, Text)>, pairs: &[(Text, Text)]) -> Result<(), AllocError>
    ensures { OnOk result (items.new.items ≡ items.old.items ++ pairs.now) }
{
    let mut rest = pairs;
    while let [pair, ..] = rest {
        push_copy(items, pair)?;
        rest = &rest[1..];
    }
    Ok(())
}

fn push_copy(items: &mut Vec<(Text, Text)>, pair: &(Text, Text)) -> Result<(), AllocError>
    ensures { OnOk result (items.new.items ≡ items.old.items ++ pair.now ∷ []) }
{
    let name = pair.0.clone()?;
    let value = pair.1.clone()?;
    items.push((name, value))?;
    Ok(())
}
