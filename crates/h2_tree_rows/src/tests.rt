mod orders;
mod plain_list;
mod rows;
mod troubles;
mod under_test;
