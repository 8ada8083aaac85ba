// Which windows cadences have, worked out by hand.

mod cadences;
