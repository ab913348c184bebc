mod blocks;
mod both;
mod files;
mod orders;
mod plain;
mod rows;
