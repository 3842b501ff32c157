//! Worked transactions, and generated reports beside a plain slow program over all pairs.
mod pairs;
mod rows;
