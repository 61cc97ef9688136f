//! The operations of Wiedemann's tower on numbers, level by level, as definitions, and the bounds of what they give.
#![tactic(auto)]
