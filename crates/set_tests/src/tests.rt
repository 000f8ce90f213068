mod automata;
mod compactions;
mod listings;
mod updates;
