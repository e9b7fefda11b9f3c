//! Connections that are explained while they are served.

pub(crate) mod explain;
pub(crate) mod explained_conn;
pub(crate) mod keeper;
pub(crate) mod numbered;
