//! Tests of public calls. What a server keeps: regions, lanes, the link, shares and boxes.
#![tactic(auto)]

#[cfg(test)]
mod boxes;
#[cfg(test)]
mod lanes;
#[cfg(test)]
mod link;
#[cfg(test)]
mod plain;
#[cfg(test)]
mod regions;
#[cfg(test)]
mod shares;
