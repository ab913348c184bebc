mod pfss;
mod pfss_both;
mod pfss_orders;
mod pfss_plain;
mod pfss_rows;
mod rows;
mod under_test;
