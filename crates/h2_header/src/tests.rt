mod by_hand;
mod changes;
mod levels;
