//! Tests of rules and solvers: what no command shows. They try fractions, whether a table has no envy, the search for goods against a
//! plain program, how its workers share it, and certificates that are read from sources whose calls fail.
#![tactic(auto)]

#[cfg(test)]
mod envies;
#[cfg(test)]
mod fractions;
#[cfg(test)]
mod goods;
#[cfg(test)]
mod goods_cases;
#[cfg(test)]
mod plain_goods;
#[cfg(test)]
mod printed;
#[cfg(test)]
mod sources;
#[cfg(test)]
mod workers;
