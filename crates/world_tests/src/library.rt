// What each part of `gateway` does, by values that were worked out elsewhere.

mod frames;
mod links;
mod signals;
