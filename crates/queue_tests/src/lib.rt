//! Tests of the queues of a core: renaming, the issue queue, reorder buffers, entries in flight, loads and
//! stores, and the data flow over them. They call only what is public.
#![tactic(auto)]

#[cfg(test)]
mod accesses;
#[cfg(test)]
mod codes;
#[cfg(test)]
mod equal;
#[cfg(test)]
mod flights;
#[cfg(test)]
mod flows;
#[cfg(test)]
mod issuing;
#[cfg(test)]
mod loads_and_stores;
#[cfg(test)]
mod renames;
#[cfg(test)]
mod rings;
#[cfg(test)]
mod selected;
