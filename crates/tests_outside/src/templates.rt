// Files of templates that are refused, each with its number and place, worked out by hand from the grammar.
mod marked;
mod rows;
