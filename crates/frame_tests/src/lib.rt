// The reader on frames of every kind, sound and damaged; three cabinets, lists of at most five entries, set points.
#![tactic(auto)]

#[cfg(test)]
mod accepted;
#[cfg(test)]
mod damaged;
#[cfg(test)]
mod frames_of;
#[cfg(test)]
mod refused;
