// Questions to cabinets that are good, stopped, unsound or missing: over the sheet and the reel, for both kinds of order.
#![tactic(auto)]

#[cfg(test)]
mod asking;
#[cfg(test)]
mod cases;
