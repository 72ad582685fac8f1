//! Numbers beyond 32 bits, in a list that keeps the others in four bytes each.
//!
//! No formula of these cases has so many clauses that the solver needs them.

use anyhow::Result;
use short_numbers::ShortNumbers;
use std::alloc::Global;

// The largest two that fit in 32 bits, and two that don't.
const NUMBERS: [u64; 4] = [4294967294, 4294967295, 4294967296, 12884901893];

/// What the list gives back, before and after its first and its last number change places, one by
/// one and by what stands between them, and what goes to another list.
pub fn answer(alloc: Global) -> Result<String> {
    let mut numbers = ShortNumbers::new(alloc);
    for number in &NUMBERS {
        numbers.reserve()?;
        numbers.fit(*number)?;
        numbers.push(*number);
    }
    let before = shown(alloc, &numbers)?;
    change_places(&mut numbers)?;
    let after = shown(alloc, &numbers)?;
    let spans = spans_shown(alloc, &numbers)?;
    let rotated = rotated(alloc, &mut numbers)?;
    Ok(format!(in alloc; "beyond 32 bits:{before}, then{after}\nspans:{spans}\nrotated:{rotated}")?)
}

fn change_places(numbers: &mut ShortNumbers) -> Result<()> {
    if numbers.len() < 4 {
        return Ok(());
    }
    let last = numbers.get(3);
    numbers.fit(last)?;
    let first = numbers.replace(0, last);
    numbers.fit(first)?;
    numbers.set(3, first);
    Ok(())
}

fn shown(alloc: Global, numbers: &ShortNumbers) -> Result<String> {
    let mut text = String::new(alloc);
    for place in 0..numbers.len() {
        let number = numbers.get(place);
        text = format!(in alloc; "{text} {number}")?;
    }
    Ok(text)
}

fn spans_shown(alloc: Global, numbers: &ShortNumbers) -> Result<String> {
    let mut text = String::new(alloc);
    for place in 0..numbers.len() {
        let (start, end) = numbers.span(place);
        text = format!(in alloc; "{text} {start}-{end}")?;
    }
    Ok(text)
}

// What stood at the first place, that place and the only one of another list, once the number of
// that list went to this one, and the largest one to that list.
fn rotated(alloc: Global, numbers: &mut ShortNumbers) -> Result<String> {
    let mut others = ShortNumbers::new(alloc);
    others.reserve()?;
    others.push(7);
    let most = NUMBERS[3];
    others.fit(most)?;
    numbers.fit(7)?;
    if numbers.len() == 0 {
        return Ok(String::new(alloc));
    }
    let old = numbers.rotate(0, &mut others, 0, most);
    let here = numbers.get(0);
    let there = others.get(0);
    Ok(format!(in alloc; " {old} {here} {there}")?)
}
