//! How much the data may have to hand out for one page: charges and their number. Also the site of
//! a query as pages see it.
#![tactic(auto)]
