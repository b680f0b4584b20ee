// Data sources of every format that are read or refused, worked out by hand.
mod csv_texts;
mod data_texts;
mod files;
mod graphs;
mod json_texts;
mod steps;
