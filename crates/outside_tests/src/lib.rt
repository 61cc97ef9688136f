//! Tests of public calls. Files, folders, sockets, the clock and random bytes of the system, and what stands over them
//! where the system's calls fail.
#![tactic(auto)]

#[cfg(test)]
mod adapters;
#[cfg(test)]
mod clock;
#[cfg(test)]
mod devices;
#[cfg(test)]
mod disks;
#[cfg(test)]
mod door;
#[cfg(test)]
mod folders;
#[cfg(test)]
mod journals;
#[cfg(test)]
mod net;
#[cfg(test)]
mod papers;
#[cfg(test)]
mod patience;
#[cfg(test)]
mod proxies;
#[cfg(test)]
mod seeds;
